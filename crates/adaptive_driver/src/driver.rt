//! A run that adapts: it is given rounds until it has come far enough, and then told of by a report.
ghost use Rattle.std.specs.Prelude.{◌≡◌, ◌≤◌, ◌^◌, ℕ, false, [], OnOk, IfErr};
ghost use Rattle.cells.specs.Run.{is_over};
ghost use Rattle.dist_image.specs.Image.{IsImage};
ghost use Rattle.speculation.specs.Engine.{fresh};
ghost use Rattle.engine.specs.Whole.{start_of, image_of, slaves_of, model_of, world_of};
ghost use Rattle.speculative_runs.specs.Told.{Reads, Puts};
ghost use Rattle.speculative_runs.specs.Speculated.{Came, CutShort, Speculated};
ghost use Rattle.adapt.specs.Laws.{AreMade};
ghost use Rattle.adaptive_driver.specs.Adapted.{models_with, AreOfOneRun};

use crate::renewal::make_ready;
use adapt::Adapter;
use answers::Answer;
use command_line::Run;
use memory::Memory;
use nosquash::Pair;
use outside::{Sink, Store};
use speculative_runs::{has_come, put_after, stand, turn, write_report};
use std::alloc::Global;

/// Gives the pair rounds until its run has ended or stands at the budget or past it, puts its output as
/// it comes, and makes its image anew where one is due.
fn advance<O: Sink, M: Memory>(
    alloc: Global,
    pair: &mut Pair<M>,
    adapter: &mut Adapter,
    slaves: u8,
    budget: u64,
    out: &mut O,
) -> Result<(), Answer>
    requires fresh { model_of M.at pair.old.engine ≡ fresh (world_of M.at pair.old.engine) }
    requires image { IsImage (image_of pair.old.engine) }
    requires running { is_over (start_of M.at pair.old.engine) ≡ false }
    requires silent { (start_of M.at pair.old.engine).env.output ≡ [] }
    requires slaves { slaves ≡ slaves_of pair.old.engine }
    requires some { 1 ≤ slaves }
    requires few { slaves ≤ 64 }
    requires least { 1 ≤ budget }
    requires most { budget ≤ 10 ^ 12 }
    requires run { AreOfOneRun M.at pair.old.engine adapter.old }
    requires due { adapter.old.due ≡ adapter.old.every }
    requires made { AreMade adapter.old.program }
    ensures ok { OnOk result (Came (world_of M.at pair.old.engine)
        (models_with M.at pair.old.engine adapter.old) budget
        (model_of M.at pair.new.engine) (O.told out.old) (O.told out.new)) }
    ensures err { IfErr result (CutShort (world_of M.at pair.old.engine)
        (models_with M.at pair.old.engine adapter.old) budget
        (record {
          told = O.told out.old;
          left = O.told out.new;
          before = O.faults out.old;
          now = O.faults out.new;
        })) }
{
    let mut given: u64 = 0;
    let mut place = 0;
    let mut put = 0;
    while !has_come(pair, budget) {
        match make_ready(alloc, pair, adapter, place) {
            Ok(()) => {}
            Err(_) => return Err(Answer::Memory),
        }
        let (e, next) = turn(slaves, place);
        let effect = match pair.event(alloc, e) {
            Ok(effect) => effect,
            Err(_) => return Err(Answer::Memory),
        };
        match put_after(alloc, out, pair, effect, put) {
            Ok(length) => put = length,
            Err(answer) => return Err(answer),
        }
        place = next;
        given += 1;
    }
    Ok(())
}

/// Runs a pair that has had no event, in rounds, with an adapter that has not been asked yet; puts its
/// output as it comes, and writes a report of that name.
pub fn speculate_adapting<S: Store, O: Sink, M: Memory>(
    alloc: Global,
    store: &mut S,
    out: &mut O,
    pair: &mut Pair<M>,
    adapter: &mut Adapter,
    run: &Run<'_>,
    name: &str,
) -> Answer
    requires fresh { model_of M.at pair.old.engine ≡ fresh (world_of M.at pair.old.engine) }
    requires image { IsImage (image_of pair.old.engine) }
    requires running { is_over (start_of M.at pair.old.engine) ≡ false }
    requires silent { (start_of M.at pair.old.engine).env.output ≡ [] }
    requires slaves { run.now.slaves ≡ slaves_of pair.old.engine }
    requires run { AreOfOneRun M.at pair.old.engine adapter.old }
    requires due { adapter.old.due ≡ adapter.old.every }
    requires made { AreMade adapter.old.program }
    ensures { Speculated (world_of M.at pair.old.engine) (models_with M.at pair.old.engine adapter.old)
        run.now.budget name.now
        (record { told = S.told store.old; before = S.faults store.old; now = S.faults store.new; failed = S.failed store.new })
        (S.told store.new)
        (record { told = O.told out.old; left = O.told out.new; before = O.faults out.old; now = O.faults out.new })
        result }
{
    match advance(alloc, pair, adapter, run.slaves, run.budget, out) {
        Ok(()) => {}
        Err(answer) => return answer,
    }
    match write_report(alloc, store, name, pair) {
        Ok(()) => stand(pair.engine().committed()),
        Err(answer) => answer,
    }
}
