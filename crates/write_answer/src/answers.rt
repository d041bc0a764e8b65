ghost use Rattle.std.specs.Prelude.{◌≡◌, ◌+◌, ◌≤◌, length};
ghost use Rattle.kit.specs.Names.{sets};
ghost use Rattle.rules.specs.Rules.{answer_numbers};

use makers::answer::answer_numbers;
use rules::call::Answer;

// Writes an answer's numbers from a place on.
pub fn put(answers: &mut [u64], at: usize, answer: Answer)
    requires { at + 9 ≤ length answers.old }
    ensures { answers.new ≡ sets answers.old at (answer_numbers answer) }
{
    // Number by number: `copy_from_slice` finds out first whether the two overlap, which a call of a list feels (docs/BENCHMARKS.md).
    for (i, &number) in answer_numbers(answer).iter().enumerate() {
        answers[at + i] = number;
    }
}
