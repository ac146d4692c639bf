ghost use Rattle.std.specs.Prelude.{◌≡◌, ℕ, ◌+◌, ◌-◌, ◌*◌, ◌<◌, ◌≤◌, min, not, ◌&&◌, nat_lt};
ghost use Rattle.calendar.specs.Week.{covers};
ghost use Rattle.hour_bits.specs.Bits.{bit};

// Bit k of a word.
pub(crate) fn bit_of(word: u64, k: usize) -> bool
    requires { k < 64 }
    ensures { result ≡ bit word k }
{
    (word >> k) & 1 == 1
}

// The lowest `count` bits; all of them from 64 on.
pub(crate) fn below(count: usize) -> u64
    ensures { (k : ℕ) → k < 64 → bit result k ≡ nat_lt k count }
{
    if count >= 64 {
        u64::MAX
    } else {
        (1u64 << count) - 1
    }
}

// The bits from `low` up to below `high`.
pub(crate) fn part(low: usize, high: usize) -> u64
    ensures { (k : ℕ) → k < 64 → bit result k ≡ (nat_lt k high && not (nat_lt k low)) }
{
    below(high) & !below(low)
}

// The end of a run, as far as it lies before Sunday night.
fn this_week(end: usize) -> usize
    ensures { result ≡ min end 168 }
{
    end.min(168)
}

// How far a run goes on after Sunday night, when the week turns.
fn next_week(end: usize) -> usize
    ensures { result ≡ end - 168 }
{
    end.saturating_sub(168)
}

// The hours of a run that lie in word j of a row.
pub(crate) fn run_mask(j: usize, first: usize, hours: usize) -> u64
    requires word { j < 3 }
    requires first { first < 168 }
    requires most { hours ≤ 168 }
    ensures { (k : ℕ) → k < 64 → bit result k ≡ covers first hours (64 * j + k) }
{
    let from = 64 * j;
    let end = first + hours;
    let straight = part(
        first.saturating_sub(from),
        this_week(end).saturating_sub(from),
    );
    straight | below(next_week(end).saturating_sub(from))
}
