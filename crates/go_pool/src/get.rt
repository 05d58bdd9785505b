//! Getting an item of a pool.
ghost use Rattle.std.specs.Prelude.{◌≡◌, ◌≢◌, ℕ, ◌<◌, ◌*◌, Some};
ghost use Rattle.sync_model.specs.declared.answer.Answer.TheVariants.{Done};
ghost use Rattle.sync_model.specs.Front.{SameCounts};
ghost use Rattle.pool_core.specs.Looks.{look};
ghost use Rattle.pool_core.specs.PartLaws.{about};
ghost use Rattle.protocols.specs.PoolStages.{pool_event};
ghost use Rattle.ruled_object.specs.Growth.{KeepsNote};
ghost use Rattle.go_pool.specs.Calls.{Gets, Looks};
ghost use Rattle.go_pool.specs.Items.{ComesFromPuts, IsLook};
ghost use Rattle.go_pool.specs.Pools.{parts_of, fresh_of, left_of, number_of, IsHomeOf, IsPassOf, IsLawful, IsOneLess, SamePass, Did};

use crate::answers::looked;
use crate::pool::{Pool, PoolPass};
use crate::pool_get::PoolGet;
use pool_core::PartCore;
use pool_core::part_laws::a_part_gives_each_once;
use protocols::PoolStage;
use ruled_object::laws::notes_are_kept;
use std::sync::Wait;
use sync_model::laws::journals::journal_is_log;
use sync_model::{Answer, Note};
use sync_outside::{At, Clock};

impl<N: Note> Pool<N> {
    /// Takes an item that was put, or gives the pool's fresh value. It looks at the caller's own part, at the others' shared
    /// items from the next part on, round to the one before, and then among the victims in the same way; the first item
    /// that it finds is taken. The get of an item synchronizes after its put.
    pub fn get<C: Clock, R: Wait>(
        &self,
        rt: &R,
        at: &At<N, C>,
        pass: &mut PoolPass<N>,
        note: &mut N,
    ) -> Answer<PoolGet>
        requires pass { IsPassOf self.now pass.old × (0 < left_of pass.old) }
        requires home { IsHomeOf N.at self.now at.now.home.now × N.at at.now.home.now note.old }
        ensures pass { IsPassOf self.now pass.new × IsOneLess pass.old pass.new }
        ensures note { KeepsNote N.at N.own N.front note.old note.new }
        ensures events { Did self.now (Gets (parts_of self.now) (number_of pass.old) (fresh_of self.now)) pass.old (N.front note.old) result pass.new (N.front note.new) }
        ensures origin { ComesFromPuts pass.new }
        ensures no_edge { ((item : ℕ) → result ≢ Done (PoolGet.Item item)) → SameCounts (N.front note.new) (N.front note.old) }
        ensures journal { IsLawful self.now pass.new }
    {
        journal_is_log::<PartCore>();
        a_part_gives_each_once();
        notes_are_kept::<N>();
        pass.left -= 1;
        for number in 0..2 * self.callers {
            match self.look(rt, at, pass, note, number) {
                Answer::Done(None) => {}
                Answer::Done(Some(item)) => return Answer::Done(PoolGet::Item(item)),
                Answer::Halted(misuse) => return Answer::Halted(misuse),
            }
        }
        Answer::Done(PoolGet::New(self.fresh))
    }

    // Makes the look of this number, of a get by the pass's caller.
    fn look<C: Clock, R: Wait>(
        &self,
        rt: &R,
        at: &At<N, C>,
        pass: &mut PoolPass<N>,
        note: &mut N,
        number: u32,
    ) -> Answer<Option<u64>>
        requires number { number < 2 * parts_of self.now }
        requires pass { IsPassOf self.now pass.old }
        requires home { IsHomeOf N.at self.now at.now.home.now × N.at at.now.home.now note.old }
        ensures pass { IsPassOf self.now pass.new × SamePass pass.old pass.new }
        ensures note { KeepsNote N.at N.own N.front note.old note.new }
        ensures events { Did self.now (Looks (look (parts_of self.now) (number_of pass.old) number)) pass.old (N.front note.old) result pass.new (N.front note.new) }
        ensures no_edge { ((item : ℕ) → result ≢ Done (Some item)) → SameCounts (N.front note.new) (N.front note.old) }
        ensures journal { IsLawful self.now pass.new }
    {
        let stage = self.look_stage(pass.number(), number);
        let part = self.look_part(pass.number(), number);
        looked(self.at_part(rt, at, pass, note, part, stage))
    }

    // At which part the look of this number is.
    fn look_part(&self, caller: u32, number: u32) -> u32
        requires caller { caller < parts_of self.now }
        requires number { number < 2 * parts_of self.now }
        ensures part { result < parts_of self.now }
        ensures about { about caller (look (parts_of self.now) caller number) ≡ Some result }
    {
        (caller + number) % self.callers
    }

    // Which look has this number.
    fn look_stage(&self, caller: u32, number: u32) -> PoolStage
        requires caller { caller < parts_of self.now }
        requires number { number < 2 * parts_of self.now }
        ensures event { pool_event result 0 ≡ look (parts_of self.now) caller number }
        ensures look { IsLook (pool_event result 0) }
    {
        if number == 0 {
            return PoolStage::LookOwn;
        }
        let part = self.look_part(caller, number);
        if number < self.callers {
            PoolStage::LookOther(part)
        } else {
            PoolStage::LookVictim(part)
        }
    }
}
