// Exports for the benchmarks alone: the inner calls, run many times on a table that is tested once.
#![tactic(auto)]

ghost use Rattle.std.specs.Prelude.{◌≡◌};
ghost use Rattle.history.specs.Replay.{replay_call};
ghost use Rattle.finder_bench.specs.Asked.{asked_all, nearest_all};

use nearest::NearestAnswer;
use pages::Rect;
use refusals::refusal_of;
use soundness::SoundTable;

// Answers a query for each reference, each as a call of its own would, and gives the number of all hits.
#[unsafe(no_mangle)]
pub extern "C" fn bench_queries(
    table: &[u32],
    references: &[u32],
    clauses: &[u64],
    answer: &mut [u16],
) -> u64
    ensures { (result, answer.new) ≡ asked_all table.now references.now clauses.now answer.old }
{
    let Ok(table) = SoundTable::read(table) else {
        return 0;
    };
    let (rects, _) = references.as_chunks();
    let mut hits: u64 = 0;
    for words in rects {
        if let Ok(found) = query::query_sound(table, Rect::from(*words), clauses, answer) {
            hits = hits.wrapping_add(u64::from(found.hits));
        }
    }
    hits
}

// Asks for the nearest piece of each point, each as a call of its own would, and adds up what the calls answer, so that no part of a
// call can be left out.
#[unsafe(no_mangle)]
pub extern "C" fn bench_nearest(table: &[u32], points: &[u32], allowance: u32) -> u64
    ensures { result ≡ nearest_all table.now points.now allowance }
{
    let Ok(table) = SoundTable::read(table) else {
        return 0;
    };
    let (points, _) = points.as_chunks::<2>();
    let mut total: u64 = 0;
    for words in points {
        let [x, y] = *words;
        let found = NearestAnswer::from(nearest::nearest_sound(table, x, y, allowance));
        total = total
            .wrapping_add(u64::from(found.number))
            .wrapping_add(u64::from(found.opened))
            .wrapping_add(found.distance)
            .wrapping_add(found.left_distance);
    }
    total
}

#[unsafe(no_mangle)]
pub extern "C" fn bench_replay(table: &mut [u32], calls: &[u32], refusals: &mut [u32]) -> u32
    ensures { (result, table.new, refusals.new) ≡ replay_call table.old calls.now refusals.old }
{
    refusal_of(&history::replay(table, calls, refusals))
}
