// Numbers put into a part: each where it has a place, and no other.
ghost use Rattle.std.specs.Prelude.{◌≡◌};
ghost use Rattle.arrays.specs.Room.{put_lent, overwritten};

// Puts numbers from place `at` of what is lent on.
#[tactic(auto, using(crate::proofs::PutLaws::put_lent_at, crate::proofs::PutLaws::put_past))]
pub fn put<T: Copy>(part: &mut [T], length: u32, at: usize, numbers: &[T])
    ensures { part.new ≡ put_lent length part.old at numbers.now }
{
    let lent = part.len().min(length as usize);
    if at >= lent {
        return;
    }
    let count = numbers.len().min(lent - at);
    part[at..at + count].copy_from_slice(&numbers[..count]);
}

// A part set to one number from one place up to another.
#[tactic(auto, using(crate::proofs::PutLaws::overwritten_between))]
pub fn overwrite<T: Copy>(part: &mut [T], from: u32, to: u32, number: T)
    requires cloned { T.is_infallible number }
    requires same { (y : T) → T.is_clone number y → y ≡ number }
    ensures { part.new ≡ overwritten from to part.old number }
{
    let end = part.len().min(to as usize);
    let start = end.min(from as usize);
    part[start..end].fill(number);
}
