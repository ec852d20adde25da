// The next number.
ghost use Rattle.std.specs.Prelude.{◌≡◌, suc, IfOk, OnOk};

use ytt_base::text::Memory;

/// The next number, which is taken then. Where there is none, there can't have been room for so many
/// functions.
pub fn take(next: &mut usize) -> Result<usize, Memory>
    ensures number { IfOk result (λ number. number ≡ next.old) }
    ensures next { OnOk result (next.new ≡ suc next.old) }
{
    let number = *next;
    match number.checked_add(1) {
        Some(after) => {
            *next = after;
            Ok(number)
        }
        None => Err(Memory),
    }
}
