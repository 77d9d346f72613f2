//! What shrinks and agreements have in common: entry, proposal and adoption (ULFM, shrink and agree).
ghost use Rattle.std.specs.Prelude.{◌≡◌, ℕ, IsTrue, Some, IfOk, IfErr, OnOk, OnErr, false};
ghost use Rattle.ulfm_base.specs.declared.contribution.Contribution.{Contribution as Brought};
ghost use Rattle.ulfm_base.specs.Decision.{entry_at};
ghost use Rattle.ulfm_base.specs.Group.{is_member};
ghost use Rattle.ulfm_base.specs.RankSet.{has};
ghost use Rattle.ulfm_base.specs.Topic.{Fits, HasShrink};
ghost use Rattle.ulfm_rank.specs.Calls.{Enters};
ghost use Rattle.ulfm_log.specs.Proposal.{Proposes};
ghost use Rattle.ulfm_rank.specs.Checks.{Passes, Fails, FailsOrStarves, proposal_checks, adopt_checks};
ghost use Rattle.ulfm_log.specs.Communicators.{group_of};
ghost use Rattle.ulfm_log.specs.Entrances.{HasEntries};
ghost use Rattle.ulfm_log.specs.Decisive.{is_current, is_next};
ghost use Rattle.ulfm_log.specs.Proposal.{deciders, has_entered, has_adopted, is_foreign, is_in_round, last_round, next_round, rounds_of};
ghost use Rattle.ulfm_log.specs.State.{logged};

use super::Rank;
use ulfm_base::{
    CallError, Context, Contribution, Decision, Entrance, Group, Listing, OutOfMemory, RankSet,
    Topic,
};
use ulfm_log::{
    Comm, Entry, Row, announce, forget, is_adopted, is_foreign, listed, make_place, proposed, tell,
};

impl Rank {
    /// Enters a topic, on the communicator of these members, with the failures that are known now.
    pub(super) fn enter(
        &mut self,
        topic: Topic,
        flag: Option<u32>,
        members: RankSet,
    ) -> Result<(), OutOfMemory>
        requires fits { Fits topic.purpose flag }
        requires has_shrink { HasShrink topic }
        requires members { (r : ℕ) → has members r ≡ is_member (deciders self.old.state.ranks self.old.state.log topic) r }
        requires next { IsTrue (is_next (rounds_of self.old.state.log) topic) }
        ensures enters { OnOk result (Enters self.old.state topic flag self.new.state) }
        ensures unchanged { OnErr result (self.new.state ≡ self.old.state) }
        ensures room_lacked { OnErr result (self.old.prepared ≡ false) }
        ensures stays_prepared { OnErr result (IsTrue self.old.prepared → IsTrue self.new.prepared) }
        ensures place { self.new.has_place ≡ self.old.has_place }
    {
        self.log.reserve(self.requests.len() + 2)?;
        self.outboxes.reserve()?;
        make_place(&mut self.told)?;
        self.rounds.enter(topic)?;
        let known = self.faults.known();
        let entrance = Entrance {
            topic,
            contribution: Contribution { known, flag },
        };
        announce(&mut self.outboxes, self.me.number, known, members, entrance);
        forget(&mut self.told, &self.rounds);
        tell(&mut self.told, Row::entered(entrance));
        self.log.push_reserved(Entry::Entered(entrance));
        Ok(())
    }

    /// What the rank proposes on a topic that it entered, once each member is listed or failed.
    pub(super) fn proposal_on(&self, topic: Topic) -> Result<Option<Decision>, CallError>
        requires current { IsTrue (is_current (rounds_of self.now.state.log) topic) }
        ensures accepted { OnOk result (Passes (proposal_checks self.now.state topic)) }
        ensures proposal { IfOk result (Proposes self.now.state topic) }
        ensures refused { IfErr result (Fails (proposal_checks self.now.state topic)) }
    {
        let group = self.running_group(Comm {
            context: topic.context,
        })?;
        let entries = self.listed(topic);
        if entries[self.me.number as usize].is_none() {
            return Err(CallError::NotEntered);
        }
        Ok(proposed(topic, group, &entries, self.faults.known()))
    }

    /// Adopts a decision on a topic: makes the communicator of its new group, where that is a shrink.
    pub(super) fn adopt_on(&mut self, topic: Topic, decision: Decision) -> Result<(), CallError>
        requires current { IsTrue (is_current (rounds_of self.old.state.log) topic) }
        ensures accepted { OnOk result (Passes (adopt_checks self.old.state topic decision)) }
        ensures about { OnOk result (decision.topic ≡ topic) }
        ensures state { OnOk result (self.new.state ≡ logged self.old.state (Entry.Adopted decision)) }
        ensures refused { IfErr result (FailsOrStarves (adopt_checks self.old.state topic decision)) }
        ensures unchanged { OnErr result (self.new.state ≡ self.old.state) }
        ensures room_lacked { IfErr result (λ e. e ≡ CallError.OutOfMemory → self.old.prepared ≡ false) }
        ensures stays_prepared { OnErr result (IsTrue self.old.prepared → IsTrue self.new.prepared) }
        ensures place { self.new.has_place ≡ self.old.has_place }
    {
        self.check_adoption(topic, &decision)?;
        self.log.reserve(self.requests.len() + 2)?;
        make_place(&mut self.told)?;
        self.block.make()?;
        self.communicators.make_place()?;
        self.communicators.adopt(&decision);
        tell(&mut self.told, Row::adopted(&decision));
        let held = self.block.hold(decision);
        self.log.push_reserved(Entry::Adopted(held));
        Ok(())
    }

    /// Whether a decision may be adopted on a topic.
    fn check_adoption(&self, topic: Topic, decision: &Decision) -> Result<(), CallError>
        requires current { IsTrue (is_current (rounds_of self.now.state.log) topic) }
        ensures accepted { OnOk result (Passes (adopt_checks self.now.state topic decision.now)) }
        ensures about { OnOk result (decision.now.topic ≡ topic) }
        ensures group { OnOk result (group_of self.now.state.ranks self.now.state.log topic.context.number ≡ Some decision.now.old) }
        ensures refused { IfErr result (Fails (adopt_checks self.now.state topic decision.now)) }
    {
        let group = self.running_group(Comm {
            context: topic.context,
        })?;
        if self.has_adopted(topic) {
            return Err(CallError::AlreadyMade);
        }
        if !self.has_entered(topic) {
            return Err(CallError::NotEntered);
        }
        if self.is_foreign(topic, group, decision) {
            return Err(CallError::NotMember);
        }
        Ok(())
    }

    /// Whether a decision isn't one to adopt on a topic, where the communicator has this group.
    fn is_foreign(&self, topic: Topic, group: &Group, decision: &Decision) -> bool
        requires { IsTrue (is_current (rounds_of self.now.state.log) topic) }
        ensures { result ≡ is_foreign self.now.state.me group.now self.now.state.log topic decision.now }
    {
        is_foreign(decision, topic, group, self.me, &self.listed(topic))
    }

    /// Whether the rank adopted a decision on a topic.
    pub(super) fn has_adopted(&self, topic: Topic) -> bool
        requires { IsTrue (is_current (rounds_of self.now.state.log) topic) }
        ensures { result ≡ has_adopted self.now.state.log topic }
    {
        is_adopted(&self.told, topic)
    }

    /// Whether the rank entered a topic.
    pub(super) fn has_entered(&self, topic: Topic) -> bool
        requires { IsTrue (is_current (rounds_of self.now.state.log) topic) }
        ensures { result ≡ has_entered self.now.state.log topic }
    {
        self.listed(topic)[self.me.number as usize].is_some()
    }

    /// With what the rank lists each rank in the decision on a topic.
    fn listed(&self, topic: Topic) -> Listing
        requires { IsTrue (is_current (rounds_of self.now.state.log) topic) }
        ensures entries { HasEntries self.now.state.me self.now.state.log topic result }
        ensures flags { (r : ℕ) (brought : Brought) → entry_at result r ≡ Some brought → Fits topic.purpose brought.flag }
    {
        listed(self.me, &self.told, topic)
    }

    /// How many rounds of this kind the rank entered on a communicator: agreements, or else shrinks.
    pub(super) fn entered(&self, agrees: bool, context: Context) -> u64
        ensures { result ≡ rounds_of self.now.state.log agrees context.number }
    {
        self.rounds.on(agrees, context)
    }

    /// Whether the rank entered a round of this kind on a communicator whose decision it didn't adopt yet.
    pub(super) fn is_in_round(&self, agrees: bool, context: Context) -> bool
        ensures { result ≡ is_in_round self.now.state.log agrees context }
    {
        let topic = self.last_round(agrees, context);
        self.has_entered(topic) && !self.has_adopted(topic)
    }

    /// The round of this kind on a communicator that the rank enters next.
    pub(super) fn next_round(&self, agrees: bool, context: Context) -> Topic
        ensures { result ≡ next_round self.now.state.log agrees context }
    {
        Topic::round_on(agrees, context, self.entered(agrees, context))
    }

    /// The round of this kind on a communicator that the rank entered last, or that of number 0 where it entered none.
    pub(super) fn last_round(&self, agrees: bool, context: Context) -> Topic
        ensures { result ≡ last_round self.now.state.log agrees context }
    {
        let round = self.entered(agrees, context).saturating_sub(1);
        Topic::round_on(agrees, context, round)
    }
}
