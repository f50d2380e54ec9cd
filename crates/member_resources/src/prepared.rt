ghost use Rattle.std.specs.Prelude.{◌≡◌, ◌≤◌, IfOk, OnOk, OnErr};
ghost use Rattle.member_intents.specs.declared.test.Test.{Test as TestValue};
ghost use Rattle.member_intents.specs.declared.test.StepFault.TheVariants.{Unlawful};
ghost use Rattle.member_effects.specs.Given.{need_of};
ghost use Rattle.member_effects.specs.Given.{IsUnlessMemory, PlanIsAllowed, intent_plan};
ghost use Rattle.member_resources.specs.Prepared.{is_holder, setting_of, wanted, HasSpare, with_change_room, Reserves};

use crate::Resources;
use ds_base::{MemberId, NoMemory};
use member_effects::{Plan, Setting, need, plan_for};
use member_intents::{Intent, Sent, StepFault, Test};
use std::alloc::Global;

/// A lawful event: what goes out, and what is changed where a number is drawn for it.
#[derive(Debug, Drop)]
pub struct Prepared {
    pub sent: Sent,
    pub plan: Plan,
}

impl Resources {
    // Whether the castout lock of the page that the member casts out is its own, where this one holds it.
    fn is_holder(&self, holder: Option<MemberId>) -> bool
        ensures { result ≡ is_holder self.now holder }
    {
        match holder {
            Some(holder) => holder.number() == self.marks.member().number(),
            None => false,
        }
    }

    fn setting(&self, holder: Option<MemberId>, place: u64) -> Setting
        ensures { result ≡ setting_of self.now holder place }
    {
        Setting {
            limit: self.limit,
            cast: self.cast,
            is_holder: self.is_holder(holder),
            place,
        }
    }

    fn need(&self, intent: &Intent, holder: Option<MemberId>, place: u64) -> Result<Sent, Test>
        ensures { result ≡ need_of self.now.marks self.now.pages (setting_of self.now holder place) intent.now }
    {
        let setting = self.setting(holder, place);
        need(&self.marks, self.pages.as_slice(), &setting, intent)
    }

    fn plan(&self, alloc: Global, intent: &Intent) -> Result<Plan, StepFault>
        ensures exact { IsUnlessMemory result (intent_plan self.now.marks self.now.pages self.now.limit intent.now) }
        ensures allowed { IfOk result PlanIsAllowed }
    {
        plan_for(
            alloc,
            &self.marks,
            self.pages.as_slice(),
            self.limit,
            intent,
        )
    }

    // Tests the intent, and plans its change.
    #[tactic(auto, using(crate::proofs::Settling::needed_err))]
    fn test(
        &self,
        alloc: Global,
        intent: &Intent,
        holder: Option<MemberId>,
        place: u64,
    ) -> Result<Prepared, StepFault>
        ensures exact { IsUnlessMemory result (wanted self.now holder place intent.now) }
        ensures allowed { IfOk result (λ prepared. PlanIsAllowed prepared.plan) }
    {
        let sent = match self.need(intent, holder, place) {
            Ok(sent) => sent,
            Err(test) => return Err(StepFault::Unlawful(test)),
        };
        let plan = self.plan(alloc, intent)?;
        Ok(Prepared { sent, plan })
    }

    fn reserve_claim(&mut self) -> Result<(), NoMemory>
        ensures { OnOk result (HasSpare self.old self.new) }
    {
        self.marks.reserve_claim()
    }

    fn reserve_change(&mut self, slot: u8) -> Result<(), NoMemory>
        ensures { OnOk result (self.new ≡ with_change_room self.old slot) }
    {
        self.marks.reserve_change(slot)
    }

    // Takes the memory that settling the event may need.
    fn reserve(&mut self, intent: &Intent) -> Result<(), NoMemory>
        ensures { OnOk result (Reserves intent.now self.old self.new) }
    {
        match intent {
            Intent::Obtain { .. } | Intent::Grant { .. } => self.reserve_claim(),
            Intent::Change { slot, .. } => self.reserve_change(*slot),
            _ => Ok(()),
        }
    }

    /// Tests the intent, plans its change and takes the memory. `holder` has the castout lock of the page that the member
    /// casts out, and `place` is the number of the event.
    pub(crate) fn prepare(
        &mut self,
        alloc: Global,
        intent: &Intent,
        holder: Option<MemberId>,
        place: u64,
    ) -> Result<Prepared, StepFault>
        ensures exact { IsUnlessMemory result (wanted self.old holder place intent.now) }
        ensures allowed { IfOk result (λ prepared. PlanIsAllowed prepared.plan) }
        ensures reserves { OnOk result (Reserves intent.now self.old self.new) }
        ensures unlawful { (test : TestValue) → result ≡ Err (Unlawful test) → self.new ≡ self.old }
    {
        let prepared = self.test(alloc, intent, holder, place)?;
        self.reserve(intent)?;
        Ok(prepared)
    }
}
