// A constraint's last two numbers change places: limit before weight in the call, weight before limit in the sheet.
ghost use Rattle.std.specs.Prelude.{◌≡◌, ◌≤◌, length};
ghost use Rattle.form.specs.Form.{turned};
ghost use Rattle.form.specs.Over.{over};

use lists::copy;
use terms::limits::CONSTRAINT_LENGTH;

// Turns constraints.
pub fn turn(constraints: &mut [u64])
    ensures { constraints.new ≡ turned constraints.old }
{
    // By index: of what is written through `chunks_exact_mut` or `as_chunks_mut` the standard library says only how long the list stays.
    for k in 0..constraints.len() / CONSTRAINT_LENGTH {
        let at = CONSTRAINT_LENGTH * k;
        constraints.swap(at + 2, at + 3);
    }
}

// Puts constraints, turned, down at the front of a list; what lies beyond stays.
pub fn copy_turned(constraints: &[u64], list: &mut [u64])
    requires { length constraints.now ≤ length list.old }
    ensures { list.new ≡ over (turned constraints.now) list.old }
{
    let numbers = constraints.len();
    copy(constraints, list);
    turn(&mut list[..numbers]);
}
