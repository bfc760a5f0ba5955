// The fixed part of every text: share/prelude.h.
ghost use Rattle.ctext.specs.Prelude.{prelude};
ghost use Rattle.typeset.specs.Page.{Put};

use super::pieces::Page;

// What the helpers and hooks of a text are.
pub fn put_prelude(page: &mut Page)
    ensures { Put page.old prelude page.new }
{
    page.put_all(
        b"/* A sequential program as C11 text, printed by Zarukohen.
   m0, m1, .. are its locations, p0, p1, .. its procedures (p0 is the start),
   x0, x1, .. the locals of each. Nothing wraps and nothing is clamped: an
   operator without a result gives a value of kind Z_NONE, and the step that
   would use it calls zaru_block before it has changed anything. */

#include <stdint.h>

/* A value. n is the number, the location's number, or 0 for false and 1 for
   true. Z_NONE is no value; n is then the reason: 1 outside the number range,
   2 wrong kind. Cells start as all zeros, the number 0. */
enum { Z_NUM, Z_LOC, Z_TRUTH, Z_NONE };
typedef struct { int kind; int32_t n; } z_value;

/* The cells of each location, in order; a pair of zeros is the last entry. */
typedef struct { z_value *cells; int32_t size; } z_area;
extern const z_area z_areas[];

/* Written by the user of this text: what is done before each step; the choice
   of the next thread; a step that blocks, by reason 1 or 2 as above, 3 index
   outside, 4 finished thread chosen (the run ends: it should not return); and
   each read (write is 0) or write (1) of a cell. */
void zaru_step(void);
int32_t zaru_select(void);
void zaru_block(int32_t reason);
void zaru_event(int write, int procedure, int32_t location, int32_t index,
                z_value v);

/* The leaves of expressions; no value; a local before it is set. */
z_value z_num(int32_t n) { return (z_value){ Z_NUM, n }; }
z_value z_loc(int32_t n) { return (z_value){ Z_LOC, n }; }
z_value z_false(void) { return (z_value){ Z_TRUTH, 0 }; }
z_value z_true(void) { return (z_value){ Z_TRUTH, 1 }; }
z_value z_none(int32_t reason) { return (z_value){ Z_NONE, reason }; }
z_value z_unset(void) { return z_none(2); }

/* The operators. The left operand is judged before the right one. */
z_value z_exact(int64_t n) {
  if (n < INT32_MIN || n > INT32_MAX) return z_none(1);
  return z_num((int32_t)n);
}
z_value z_add(z_value a, z_value b) {
  if (a.kind == Z_NONE) return a;
  if (a.kind != Z_NUM) return z_none(2);
  if (b.kind == Z_NONE) return b;
  if (b.kind != Z_NUM) return z_none(2);
  return z_exact((int64_t)a.n + (int64_t)b.n);
}
z_value z_sub(z_value a, z_value b) {
  if (a.kind == Z_NONE) return a;
  if (a.kind != Z_NUM) return z_none(2);
  if (b.kind == Z_NONE) return b;
  if (b.kind != Z_NUM) return z_none(2);
  return z_exact((int64_t)a.n - (int64_t)b.n);
}
z_value z_mul(z_value a, z_value b) {
  if (a.kind == Z_NONE) return a;
  if (a.kind != Z_NUM) return z_none(2);
  if (b.kind == Z_NONE) return b;
  if (b.kind != Z_NUM) return z_none(2);
  return z_exact((int64_t)a.n * (int64_t)b.n);
}
z_value z_less(z_value a, z_value b) {
  if (a.kind == Z_NONE) return a;
  if (a.kind != Z_NUM) return z_none(2);
  if (b.kind == Z_NONE) return b;
  if (b.kind != Z_NUM) return z_none(2);
  return a.n < b.n ? z_true() : z_false();
}
z_value z_equal(z_value a, z_value b) {
  if (a.kind == Z_NONE) return a;
  if (b.kind == Z_NONE) return b;
  if (a.kind != b.kind) return z_none(2);
  return a.n == b.n ? z_true() : z_false();
}
z_value z_and(z_value a, z_value b) {
  if (a.kind == Z_NONE) return a;
  if (a.kind != Z_TRUTH) return z_none(2);
  if (a.n == 0) return a;
  if (b.kind == Z_NONE) return b;
  if (b.kind != Z_TRUTH) return z_none(2);
  return b;
}
z_value z_not(z_value a) {
  if (a.kind == Z_NONE) return a;
  if (a.kind != Z_TRUTH) return z_none(2);
  return a.n == 0 ? z_true() : z_false();
}
z_value z_neg(z_value a) {
  if (a.kind == Z_NONE) return a;
  if (a.kind != Z_NUM) return z_none(2);
  return z_exact(-(int64_t)a.n);
}

/* The steps: z_set for an assignment, z_test, z_read, z_write, z_call (with
   z_arg for each parameter), z_return and z_select. Whatever can block a step
   is judged before anything is changed. */
void z_block(int32_t reason) {
  for (;;) zaru_block(reason);
}
z_value z_arg(z_value e) {
  if (e.kind == Z_NONE) z_block(e.n);
  return e;
}
z_value z_set(z_value e) {
  zaru_step();
  return z_arg(e);
}
int z_test(z_value e) {
  zaru_step();
  if (e.kind == Z_NONE) z_block(e.n);
  if (e.kind != Z_TRUTH) z_block(2);
  return e.n != 0;
}
z_value *z_place(z_value y, z_value o) {
  if (o.kind == Z_NONE) z_block(o.n);
  if (o.kind != Z_NUM) z_block(2);
  if (y.kind != Z_LOC) z_block(2);
  if (o.n < 0 || o.n >= z_areas[y.n].size) z_block(3);
  return &z_areas[y.n].cells[o.n];
}
z_value z_read(int here, z_value y, z_value o) {
  z_value v;
  zaru_step();
  v = *z_place(y, o);
  zaru_event(0, here, y.n, o.n, v);
  return v;
}
void z_write(int here, z_value y, z_value o, z_value e) {
  z_value *place;
  zaru_step();
  if (e.kind == Z_NONE) z_block(e.n);
  place = z_place(y, o);
  zaru_event(1, here, y.n, o.n, e);
  *place = e;
}
void z_call(void) { zaru_step(); }
void z_return(void) { zaru_step(); }
void z_select(int32_t a, int32_t b) {
  int32_t t;
  zaru_step();
  t = zaru_select();
  if (t < 0 || t >= z_areas[b].size) z_block(3);
  if (z_areas[b].cells[t].kind != Z_NUM) z_block(2);
  if (z_areas[b].cells[t].n == 0) z_block(4);
  z_areas[a].cells[0] = z_num(t);
}

",
    );
}
