ghost use Rattle.std.specs.Prelude.{◌≡◌, ℕ, Bool, true, None};
ghost use Rattle.std.specs.Option.{option_map};
ghost use Rattle.orders.specs.Runs.{on_link, each_run, cell_fault, run_fault, first_fault, own_cells};
ghost use Rattle.orders.specs.Standing.{stood};
ghost use Rattle.calendar.specs.Meaning.{Meaning};
ghost use Rattle.calendar.specs.declared.run.Run.{Run};
ghost use Rattle.planner.specs.Steps.{Steps};

use calendar::hours::hour_after;
use calendar::refusal::PlantRefusal;
use calendar::run::Run;
use orders::refusal::{Cell, Refusal};
use orders::row::Row;
use plant::Plant;

// Whether the cell is one of the order's own, if there is such an order.
fn is_own(own: Option<&Row>, cell: Cell) -> bool
    ensures { result ≡ own_cells (option_map (λ row. stood row.now) own.entry) cell.link cell.channel cell.hour }
{
    own.is_some_and(|row| row.is_in(cell.link, cell.channel, cell.hour))
}

// Why the cell is not free: it is closed, or held and not by the order itself.
fn cell_fault<P: Plant>(plant: &P, own: Option<&Row>, cell: Cell) -> Option<Refusal>
    ensures { result ≡ cell_fault (P.meaning plant.now) (own_cells (option_map (λ row. stood row.now) own.entry)) cell.link cell.channel cell.hour }
{
    if plant.closed(cell.link, cell.channel, cell.hour) {
        return Some(Refusal::CellClosed(cell));
    }
    if plant.held(cell.link, cell.channel, cell.hour) && !is_own(own, cell) {
        return Some(Refusal::CellHeld(cell));
    }
    None
}

// Whether every cell of the order's run on the channel of the link is free: one question to the plant in place of one
// for each hour.
fn is_free<P: Plant>(plant: &P, row: &Row, link: u8, channel: u8) -> bool
    ensures { result ≡ true → (own : ℕ → ℕ → ℕ → Bool) → run_fault (P.meaning plant.now) own (stood row.now) link channel row.now.order.hours ≡ None }
{
    plant.first_taken(row.run_on(link, channel)).is_none()
}

// The first cell of the order that is not free: by link in path order, then channel, then hour from the first.
// A held cell of the order `own` counts as free. The three loops keep their names and the one exit, as the project has
// them.
pub(crate) fn first_fault<P: Plant>(plant: &P, own: Option<&Row>, row: &Row) -> Option<Refusal>
    ensures { result ≡ first_fault (P.meaning plant.now) (own_cells (option_map (λ row. stood row.now) own.entry)) (stood row.now) }
{
    let mut found = None;
    'links: for i in 0..row.way.path.count() {
        let link = row.link_at(i);
        'channels: for w in 0..row.order.width {
            let channel = row.way.channel + w;
            if is_free(plant, row, link, channel) {
                continue 'channels;
            }
            'hours: for j in 0..row.order.hours {
                let cell = Cell {
                    link,
                    channel,
                    hour: hour_after(row.order.first, j),
                };
                if let Some(why) = cell_fault(plant, own, cell) {
                    found = Some(why);
                    break 'links;
                }
            }
        }
    }
    found
}

// Takes the order's runs on link i of its path, channel by channel.
fn each_on_link<P: Plant, F: Fn(&mut P, Run) -> Result<(), PlantRefusal>>(
    plant: &mut P,
    row: &Row,
    i: u8,
    step: &F,
)
    requires { F.IsAlwaysCallable step.now }
    ensures { (does : Meaning → Run → Meaning) → Steps (F.post step.now) P.meaning does → P.meaning plant.new ≡ on_link does (P.meaning plant.old) (stood row.now) i row.now.order.width }
{
    let link = row.link_at(i);
    for w in 0..row.order.width {
        let _ = step(plant, row.run_on(link, row.way.channel + w));
    }
}

// Takes every run of the order: holds it, or releases it, as `step` does. The planner has looked before, so that the
// plant does not refuse.
pub(crate) fn each_run<P: Plant, F: Fn(&mut P, Run) -> Result<(), PlantRefusal>>(
    plant: &mut P,
    row: &Row,
    step: F,
)
    requires { F.IsAlwaysCallable step }
    ensures { (does : Meaning → Run → Meaning) → Steps (F.post step) P.meaning does → P.meaning plant.new ≡ each_run does (P.meaning plant.old) (stood row.now) }
{
    // The rules go by a link's place in the path, and what a step leaves is said of that place.
    for i in 0..row.way.path.count() {
        each_on_link(plant, row, i, &step);
    }
}
