ghost use Rattle.std.specs.Prelude.{◌≡◌, ℕ, ◌+◌, ◌<◌, ◌≤◌, min, true, ◌&&◌, is_ok, if◌then◌else◌, MatchResult, ◌==◌, nat_lt, slice_index_or, slice_set, take};
ghost use Rattle.std.specs.List.{list_any};
ghost use Rattle.calendar.specs.Numbers.{making_number};
ghost use Rattle.calendar.specs.Making.{formed, window_number};
ghost use Rattle.calendar.specs.Week.{covers, least, later, until};
ghost use Rattle.calendar.specs.Layers.{shut, nowhere};

use calendar::hours::covers_hour;
use calendar::refusal::MakingRefusal;
use calendar::run::{Run, Window};

// The table of a windows layer: at most eight windows, the first `count` of the places.
// An array, since a table is copied, and is made and filled with no heap: an ArrayVec is not Copy.
#[derive(Clone, Copy, Debug, PartialEq, Eq)]
pub struct WindowTable {
    windows: [Window; 8],
    count: usize,
    ghost few: { count ≤ 8 },
    ghost good: { (k : ℕ) → k < count → formed (slice_index_or windows k nowhere) ≡ true },
}

// Whether a table that has a place takes such a window: on link 1 to 40, from an hour of the week on, for 1 to 168 hours.
#[tactic(auto, unfolding(calendar::specs::Making::formed))]
fn is_formed(link: u32, first: u32, hours: u32) -> bool
    ensures good { result ≡ formed (record { link = link; first = first; hours = hours }) }
    ensures small { result ≡ true → (link ≤ 40) × (first < 168) × (hours ≤ 168) }
{
    (1..=40).contains(&link) && first < 168 && (1..=168).contains(&hours)
}

// Whether some of the windows closes the link in that hour.
fn some_shuts(windows: &[Window], link: u8, hour: u8) -> bool
    ensures { result ≡ list_any (λ window. window.link == link && covers window.first window.hours hour) windows.now }
{
    windows.iter().any(|window| window.link == link
        && covers_hour(window.first, window.hours, hour))
}

// How many hours of the run come before the first that the window shuts: all, where it is on another link.
fn hours_before(window: Window, run: Run) -> u8
    ensures { result ≡ (if window.link == run.link then min run.hours (until window.first window.hours run.first) else run.hours) }
{
    if window.link == run.link {
        run.hours_before(window.first, window.hours)
    } else {
        run.hours
    }
}

impl WindowTable {
    pub fn new() -> WindowTable
        ensures { result.count ≡ 0 }
    {
        WindowTable {
            windows: [Window::default(); 8],
            count: 0,
        }
    }

    fn has_place(&self) -> bool
        ensures { result ≡ nat_lt self.now.count 8 }
    {
        self.count < 8
    }

    // The windows that were added.
    fn in_use(&self) -> &[Window]
        ensures { result.now ≡ take self.now.count self.now.windows }
    {
        &self.windows[..self.count]
    }

    // One window more, or a refusal that leaves all as it was.
    #[tactic(auto, unfolding(calendar::specs::Making::window_number))]
    pub fn add(&mut self, link: u32, first: u32, hours: u32) -> Result<(), MakingRefusal>
        ensures answer { MatchResult result (λ _. window_number self.old.count (record { link = link; first = first; hours = hours }) ≡ 0) (λ e. window_number self.old.count (record { link = link; first = first; hours = hours }) ≡ making_number e) }
        ensures count { self.new.count ≡ (if is_ok result then self.old.count + 1 else self.old.count) }
        ensures windows { self.new.windows ≡ (if is_ok result then slice_set self.old.windows self.old.count (record { link = link; first = first; hours = hours }) else self.old.windows) }
    {
        if self.has_place() && is_formed(link, first, hours) {
            self.windows[self.count] = Window {
                link: link as u8,
                first: first as u8,
                hours: hours as u8,
            };
            self.count += 1;
            Ok(())
        } else {
            Err(MakingRefusal::BadTable)
        }
    }

    // Whether some window closes the link in that hour.
    pub(crate) fn shuts(&self, link: u8, hour: u8) -> bool
        ensures { result ≡ shut self.now.windows self.now.count link hour }
    {
        some_shuts(self.in_use(), link, hour)
    }

    // How many hours of the run come before the first that some window shuts.
    pub(crate) fn open_hours(&self, run: Run) -> u8
        requires { run.hours ≤ 168 }
        ensures { result ≡ least run.hours (λ j. shut self.now.windows self.now.count run.link (later run.first j)) }
    {
        self.in_use().iter().fold(
            run.hours,
            |open, window| hours_before(*window, run).min(open),
        )
    }
}
