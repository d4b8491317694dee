// The lines of the log: fixed byte strings and decimals, each appended by a proved call.
ghost use Rattle.line.specs.Held.{held, spaced};
ghost use Rattle.orders.specs.Log.{no_line, pair_line};
ghost use Rattle.routing.specs.Found.{links_of};
ghost use Rattle.std.specs.Prelude.{◌≡◌, ◌++◌, OnOk};

use line::Line;
use routing::{Pair, Path};
use std::alloc::AllocError;

// Appends a mark and the links of a path.
fn put_path(line: &mut Line, mark: &[u8], path: &Path) -> Result<(), AllocError>
    ensures { OnOk result (held line.new ≡ held line.old ++ (mark.now ++ spaced (links_of path.now))) }
{
    line.text(mark)?;
    line.numbers(path.links())
}

// Appends the line of an accepted order.
pub(crate) fn put_pair(line: &mut Line, serial: u32, pair: &Pair) -> Result<(), AllocError>
    ensures { OnOk result (held line.new ≡ held line.old ++ pair_line serial pair.now) }
{
    line.text(b"PAIR ")?;
    line.decimal(serial)?;
    line.text(b" ")?;
    line.decimal(pair.cost)?;
    put_path(line, b" W", &pair.working)?;
    put_path(line, b" P", &pair.protecting)?;
    line.text(b"\n")
}

// Appends the line of a refusal, by the number that its own enum gives.
pub(crate) fn put_no(line: &mut Line, number: u8) -> Result<(), AllocError>
    ensures { OnOk result (held line.new ≡ held line.old ++ no_line number) }
{
    line.text(b"NO ")?;
    line.decimal(u32::from(number))?;
    line.text(b"\n")
}
