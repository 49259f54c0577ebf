// Serves speed alone: the first three columns of a line, judged before the others (specs/Three.antt).

ghost use Rattle.std.specs.Prelude.{◌≡◌, length, ◌≤◌};
ghost use Rattle.columns.specs.Three.{begins_as};

use super::layout::opens_number;

pub(crate) fn begins_as(layout: &[u8], line: &[u8]) -> bool
    requires { (3 ≤ length layout.now) × (3 ≤ length line.now) }
    ensures { result ≡ begins_as layout.now line.now }
{
    ((layout[0] == line[0]) & (layout[0] < b'A'))
        & ((layout[1] == line[1]) & (layout[1] < b'A'))
        & ((layout[2] == b'N') & opens_number(line[2]))
}
