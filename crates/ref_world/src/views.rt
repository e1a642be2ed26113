//! What a world's log was at one point.
ghost use Rattle.std.specs.Prelude.{◌≡◌, ◌≤◌, true, IfOk, length};
ghost use Rattle.std.specs.Result.{is_ok};
ghost use Rattle.ref_log.specs.Replay.{point_after, replay};
ghost use Rattle.ref_log.specs.Limits.{last_point};

use crate::worlds::World;
use ref_fun::Meaning;
use ref_log::{Base, Entry};
use ref_pvec::PVec;
use std::alloc::AllocError;
use std::marker::{Model, PhantomData};
use std::sync::Arc;

/// The base and the log of a world as they were when [`World::view`] was called. What is done to the world since doesn't show
/// in it, and a checkpoint takes nothing from it. Contracts see the base and the list of the entries.
///
/// It is always so that the log has a replay on the base: [`ref_log::replay_plain`] gives the values of all refs and atoms at
/// [`View::point`].
#[derive(Drop)]
pub struct View<M: Meaning> {
    base: Arc<Base>,
    log: PVec<Entry>,
    of: PhantomData<M>,
}

impl<M: Meaning> Model for View<M> {
    ghost use Rattle.std.specs.Prelude.{◌≡◌, ◌≤◌, length};
    ghost use Rattle.std.specs.Coded.{codes};
    ghost use Rattle.ref_value.specs.Code.{edn_code};
    ghost use Rattle.ref_log.specs.Limits.{last_point};
    ghost use Rattle.ref_log.specs.Replay.{point_after};
    ghost use Rattle.ref_world.specs.Seen.{ViewSeen};
    ghost use Rattle.ref_world.specs.World.{HasReplay};

    ghost Value = { ViewSeen };

    ghost coded = { Prim.hlevel (codes, edn_code) };

    ghost view = { λ a. record { base = a.base.value; log = a.log } };

    ghost invariant = { λ a. HasReplay M.means a.base.value a.log × (point_after a.base.value a.log ≤ last_point)
        × (length a.base.value.last ≡ length a.base.value.refs) };
}

impl<M: Meaning> View<M> {
    /// What the log begins with.
    pub fn base(&self) -> &Base
        ensures base { result.now ≡ self.now.base }
        // It has the last change of each of its refs.
        ensures lasts { length self.now.base.last ≡ length self.now.base.refs }
    {
        &self.base
    }

    /// The entries after the base, the first of them at the point after its.
    pub fn log(&self) -> &PVec<Entry>
        ensures log { result.now ≡ self.now.log }
        // They have a replay on the base.
        ensures replayed { is_ok (replay M.means self.now.base self.now.log) ≡ true }
        ensures limit { point_after self.now.base self.now.log ≤ last_point }
    {
        &self.log
    }

    /// The point of the last entry.
    pub fn point(&self) -> u64
        ensures value { result ≡ point_after self.now.base self.now.log }
        ensures limit { result ≤ last_point }
    {
        self.base.point + self.log.len() as u64
    }

    /// One more owner of the view. It takes no memory; only a count of owners can refuse.
    pub fn share(&self) -> Result<View<M>, AllocError>
        ensures { IfOk result (λ same. same ≡ self.now) }
    {
        Ok(View {
            base: Arc::try_clone(&self.base)?,
            log: self.log.share()?,
            of: PhantomData,
        })
    }
}

impl<M: Meaning> World<M> {
    /// The base and the log as they are now. It takes no memory, and as long whatever the length of the log; only a count
    /// of owners can refuse.
    pub fn view(&self) -> Result<View<M>, AllocError>
        ensures { IfOk result (λ view. view ≡ record { base = self.now.base; log = self.now.log }) }
    {
        Ok(View {
            base: Arc::try_clone(&self.base)?,
            log: self.log.share()?,
            of: PhantomData,
        })
    }
}
