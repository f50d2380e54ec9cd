ghost use Rattle.std.specs.Prelude.{◌≡◌, ◌≤◌, ◌+◌, ℕ, All, None, IfOk, IfSome};
ghost use Rattle.cache_structure.specs.Directory.{empty_directory};
ghost use Rattle.group_member.specs.Members.{IsDown, member_of};
ghost use Rattle.group_crew.specs.Ends.{AllKnow};
ghost use Rattle.group_crew.specs.Happening.{member_at};
ghost use Rattle.group_crew.specs.Making.{IsNewCrew};

use crate::crew::Crew;
use cache_structure::CacheFace;
use checkpoint_reader::KnownEnds;
use ds_base::{Lrsn, MemberId, NoMemory, Sizes};
use ds_model::Script;
use facility::Facility;
use group_member::{GroupSizes, MemberPart, Policy, Resources};
use script_fates::Fates;
use script_phases::Progress;
use std::alloc::Global;

fn make_parts<P: Policy + Drop>(
    alloc: Global,
    sizes: &Sizes,
    known: &KnownEnds,
    policies: Vec<P>,
) -> Result<Vec<MemberPart<P>>, NoMemory>
    requires { (1 ≤ sizes.now.locks) × (1 ≤ sizes.now.pool) }
    ensures down { IfOk result (λ parts. All (λ part. IsDown sizes.now (member_of part)) parts.items) }
    ensures numbered { IfOk result (λ parts. (k : ℕ) → IfSome (member_at parts.items k) (λ m. m.id ≡ k + 1)) }
    ensures known { IfOk result (λ parts. AllKnow known.now parts.items) }
{
    let mut parts = Vec::new(alloc);
    let mut number = 0u64;
    for policy in policies {
        number = number.saturating_add(1);
        let Some(id) = MemberId::new(number) else {
            break;
        };
        parts.push(MemberPart {
            id,
            resources: Resources::new(alloc, id, sizes)?,
            policy,
            restart: None,
            rebuild: None,
            known: known.copied(),
            ready: 0,
            is_stale: true,
        })?;
    }
    Ok(parts)
}

// A crew of which nothing is known to be ready.
fn make_crew<C: CacheFace + Drop, P: Policy + Drop>(
    alloc: Global,
    cache: C,
    sizes: &Sizes,
    counter: Lrsn,
    known: &KnownEnds,
    script: Script,
    policies: Vec<P>,
) -> Result<Crew<C, P>, NoMemory>
    requires sizes { (1 ≤ sizes.now.locks) × (1 ≤ sizes.now.pool) }
    requires cache { C.directory cache ≡ empty_directory sizes.now.cache sizes.now.pool }
    ensures fresh { IfOk result (λ crew. IsNewCrew C.directory crew) }
    ensures counter { IfOk result (λ crew. crew.facility.counter ≡ counter) }
    ensures script { IfOk result (λ crew. crew.script ≡ script) }
    ensures sized { IfOk result (λ crew. crew.sizes.sizes ≡ sizes.now) }
    ensures known { IfOk result (λ crew. AllKnow known.now crew.parts.items) }
{
    let facility = Facility::new(alloc, sizes, cache, counter)?;
    let parts = make_parts(alloc, sizes, known, policies)?;
    let fates = Fates::new(alloc, &script)?;
    let progress = Progress::new();
    Ok(Crew {
        facility,
        parts,
        script,
        progress,
        restart: None,
        fates,
        is_own_stale: true,
        was_half: false,
        sizes: GroupSizes { sizes: *sizes },
    })
}

impl<C: CacheFace + Drop, P: Policy + Drop> Crew<C, P> {
    /// A crew with these policies, over an empty cache, and logs that are whole records up to these ends. Nothing is played.
    pub fn new(
        alloc: Global,
        cache: C,
        sizes: &Sizes,
        counter: Lrsn,
        known: &KnownEnds,
        script: Script,
        policies: Vec<P>,
    ) -> Result<Crew<C, P>, NoMemory>
        requires sizes { (1 ≤ sizes.now.locks) × (1 ≤ sizes.now.pool) }
        requires cache { C.directory cache ≡ empty_directory sizes.now.cache sizes.now.pool }
        ensures fresh { IfOk result (λ crew. IsNewCrew C.directory crew) }
        ensures counter { IfOk result (λ crew. crew.facility.counter ≡ counter) }
        ensures script { IfOk result (λ crew. crew.script ≡ script) }
        ensures sized { IfOk result (λ crew. crew.sizes.sizes ≡ sizes.now) }
        ensures known { IfOk result (λ crew. AllKnow known.now crew.parts.items) }
    {
        let mut crew = make_crew(alloc, cache, sizes, counter, known, script, policies)?;
        crew.find_ready();
        Ok(crew)
    }
}
