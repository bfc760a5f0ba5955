// Rule 4: the bodies stand from byte 0 up to the records, one after the other.
ghost use Rattle.std.specs.Prelude.{◌≡◌, ◌+◌, ◌*◌, ◌≤◌, length};
ghost use Rattle.format.specs.Encode.{record_size};
ghost use Rattle.parse.specs.Ends.{kind_of};
ghost use Rattle.shape.specs.Shapes.{BodiesTest};

use basics::numbers::RECORD;
use parse::Kind;
use parse::block::read_body;

// Each of `count` bodies begins where its record says and where the one before it ends, and the last ends where `code` does.
pub fn right_bodies(code: &[u8], body: &[u8], records: usize, count: u16, kind: Kind) -> bool
    requires { records + record_size * count ≤ length body.now }
    ensures { BodiesTest (kind_of kind) code.now body.now records count result }
{
    let mut position = 0;
    for procedure in 0..count as usize {
        let offset = basics::bytes::four_bytes(body, records + RECORD * procedure + 2) as usize;
        if offset != position {
            return false;
        }
        let Some(next) = read_body(code, position, procedure, kind) else {
            return false;
        };
        position = next;
    }
    position == code.len()
}
