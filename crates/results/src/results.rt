ghost use Rattle.std.specs.Prelude.{◌≡◌};
ghost use Rattle.results.specs.Results.{RESULT, result_numbers};

// How many numbers a result has. C lends them at any length, and an exported function makes them an array or answers NO_ANSWERS.
pub const RESULT: usize = 2;

// Writes a number of refusal, and the length or the place that goes with it.
pub fn put_result(res: &mut [u64; RESULT], no: u32, n: usize)
    ensures { res.new ≡ result_numbers no n }
{
    res.copy_from_slice(&[no as u64, n as u64]);
}
