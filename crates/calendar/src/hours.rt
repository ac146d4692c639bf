ghost use Rattle.std.specs.Prelude.{◌≡◌, ◌+◌, ◌-◌, ◌%◌, if◌then◌else◌, nat_eq, nat_lt};
ghost use Rattle.calendar.specs.Week.{later, covers, until};

// The hour that comes `after` hours after `first`.
pub fn hour_after(first: u8, after: u8) -> u8
    ensures { result ≡ later first after }
{
    ((first as u16 + after as u16) % 168) as u8
}

// How many hours after hour `from` hour `to` comes. The week turns, so it is this distance that counts, and
// never which of two hours is the greater number.
fn hours_between(from: u8, to: u8) -> u8
    ensures { result ≡ (to + 336 - from) % 168 }
{
    ((to as u16 + 336 - from as u16) % 168) as u8
}

// Whether a run of `hours` from `first` on covers the hour.
pub fn covers_hour(first: u8, hours: u8, hour: u8) -> bool
    ensures { result ≡ covers first hours hour }
{
    (hour < 168) & (hours_between(first, hour) < hours)
}

// The wait for a run of `hours` that began `since` hours ago, or else begins in `to` hours.
fn wait(hours: u8, since: u8, to: u8) -> u8
    ensures { result ≡ (if nat_eq hours 0 then 168 else (if nat_lt since hours then 0 else to)) }
{
    if hours == 0 {
        168
    } else if since < hours {
        0
    } else {
        to
    }
}

// How many hours it is from `hour` on to one that a run of `hours` from `first` covers; 168 where it covers none, so
// that a caller takes the least of it and a run's hours.
pub fn hours_until(first: u8, hours: u8, hour: u8) -> u8
    ensures { result ≡ until first hours hour }
{
    wait(
        hours,
        hours_between(first, hour),
        hours_between(hour, first),
    )
}
