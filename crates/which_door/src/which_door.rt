// Which plan stands, for C: the number of the plan, and the sixteen bytes of every door, kind 1 with the weight of that plan or the refusal, byte 6 zero.
ghost use Rattle.std.specs.Prelude.{◌≡◌};
ghost use Rattle.which_spec.specs.Door.{plan_of, which_door, which_returns};
ghost use Rattle.which_spec.specs.Means.{WhichCall};
ghost use Rattle.star_spec.specs.Call.{call_of, work_of};

use in_use::InUse;

// Which plan stands over a plain table. `means` says what the number and the bytes are worth, of the plan of that number.
#[unsafe(no_mangle)]
pub extern "C" fn star_which(
    n: u32,
    left: &[u8],
    right: &[u8],
    weight: &[u8],
    first: &[u8],
    second: &[u8],
    answer: &mut [u8],
) -> u32
    ensures returned { let c = call_of n left.now right.now weight.now first.now in
        result ≡ which_returns c second.now answer.old }
    ensures answered { let c = call_of n left.now right.now weight.now first.now in
        answer.new ≡ which_door c second.now answer.old }
    ensures means { let c = call_of n left.now right.now weight.now first.now in
        WhichCall c second.now answer.old answer.new (plan_of first.now second.now result) result }
{
    let plain = InUse::plain(left.len());
    which::which(n, plain, left, right, weight, first, second, answer)
}

// Which plan stands over a working table, whose rows in use are lent as sixteen words.
#[unsafe(no_mangle)]
pub extern "C" fn star_work_which(
    n: u32,
    words: &[u64],
    left: &[u8],
    right: &[u8],
    weight: &[u8],
    first: &[u8],
    second: &[u8],
    answer: &mut [u8],
) -> u32
    ensures returned { let c = work_of n words.now left.now right.now weight.now first.now in
        result ≡ which_returns c second.now answer.old }
    ensures answered { let c = work_of n words.now left.now right.now weight.now first.now in
        answer.new ≡ which_door c second.now answer.old }
    ensures means { let c = work_of n words.now left.now right.now weight.now first.now in
        WhichCall c second.now answer.old answer.new (plan_of first.now second.now result) result }
{
    let working = InUse::working(words);
    which::which(n, working, left, right, weight, first, second, answer)
}
