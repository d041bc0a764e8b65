// Answers and errors, printed at a page's place.
ghost use Rattle.std.specs.Prelude.{◌+◌, ◌≤◌, length};
ghost use Rattle.digits.specs.Page.{SamePage, Prints, Moves};
ghost use Rattle.print.specs.Texts.{answer_text, error_text};
ghost use Rattle.print.specs.declared.print.TheConstants.{ROOM};

use digits::put::{Page, put_byte, put_bytes, put_list, put_next, put_number};
use makers::answer::answer_numbers;
use rules::call::Answer;

// An answer.
pub fn put_answer(page: &mut Page<'_>, answer: Answer)
    requires { page.old.at + ROOM ≤ length page.old.bytes.now }
    ensures same_page { SamePage page.old page.new }
    ensures printed { Prints page.old page.new (answer_text answer) }
    ensures moves { Moves page.old page.new ROOM }
{
    let numbers = answer_numbers(answer);
    put_number(page, numbers[0]);
    put_list(page, &numbers[1..]);
}

// `error` and the line's number, with a line feed.
pub fn put_error(page: &mut Page<'_>, line: u64)
    requires { page.old.at + ROOM ≤ length page.old.bytes.now }
    ensures same_page { SamePage page.old page.new }
    ensures printed { Prints page.old page.new (error_text line) }
    ensures moves { Moves page.old page.new ROOM }
{
    put_bytes(page, b"error");
    put_next(page, line);
    put_byte(page, b'\n');
}
