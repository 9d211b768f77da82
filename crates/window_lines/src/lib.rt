// The line of a window, `(window SLOT (START END))`, and why it is refused.
#![tactic(auto)]

ghost use Rattle.std.specs.Prelude.{◌≡◌, ◌∷◌, ◌≤◌, length};
ghost use Rattle.refusal.specs.Refusal.{number_of};
ghost use Rattle.text.specs.Output.{Put};
ghost use Rattle.dates.specs.DateText.{Fits};
ghost use Rattle.writing.specs.Puts.{least_output};
ghost use Rattle.command.specs.Forms.{window};
ghost use Rattle.command.specs.Spelling.{plain_spelling};
ghost use Rattle.command.specs.Causes.{cause, first, form_causes};

use calendar::Date;
use command::windows::window_span;
use dates::write::put_date;
use digits::write::put_number;
use refusal::Refusal;
use text::output::put_bytes;

// 10 if the buffer is too short, then the window's own refusals: 2, 11, 12.
pub fn window_refusal(short: bool, slot: u64, start: Date, end: Date) -> Result<(), Refusal>
    ensures { number_of result ≡ first (cause 10 short ∷ form_causes (window slot start end)) }
{
    if short {
        return Err(Refusal::NoRoom);
    }
    window_span(slot, start, end)?;
    Ok(())
}

// `(window SLOT (START END))` at the front, where there is room for every line. The fields of the dates fit their places, as those of a date that
// exists do.
pub fn put_window(out: &mut [u8], slot: u64, start: Date, end: Date) -> usize
    requires least_output_in_bounds { least_output ≤ length out.old }
    requires fits { Fits start × Fits end }
    ensures { Put out.old 0 (plain_spelling (window slot start end)) out.new result }
{
    let at = put_bytes(out, 0, b"(window ");
    let at = put_number(out, at, slot);
    let at = put_bytes(out, at, b" (");
    let at = put_date(out, at, start);
    let at = put_bytes(out, at, b" ");
    let at = put_date(out, at, end);
    put_bytes(out, at, b"))")
}
