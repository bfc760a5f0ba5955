// Expressions in bytes.
ghost use Rattle.parse.specs.Ends.{ReadsExpr};

// Where the expression that stands from `at` on ends, if it is at most `depth` deep.
#[tactic(auto, using(crate::proofs::Expressions::expr_ways))]
pub fn read_expr(code: &[u8], at: usize, depth: u8) -> Option<usize>
    ensures { ReadsExpr code.now at depth result }
{
    if depth == 0 {
        return None;
    }
    let mark = *code.get(at)?;
    match basics::marks::operands(mark) {
        0 => {
            let end = at + 1 + basics::marks::payload(mark) as usize;
            (end <= code.len()).then_some(end)
        }
        1 => read_expr(code, at + 1, depth - 1),
        2 => {
            let middle = read_expr(code, at + 1, depth - 1)?;
            read_expr(code, middle, depth - 1)
        }
        _ => None,
    }
}
