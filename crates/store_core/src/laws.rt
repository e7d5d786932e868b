//! What follows for every chain, with no call.

ghost use Rattle.std.specs.Prelude.{◌≡◌, ◌↔◌, ◌≤◌, ◌<◌, ◌++◌, ℕ, List, [], ◌∷◌, length, All, None, Some, Ok};
ghost use Rattle.ident_core.specs.declared.bounds.TheConstants.{MAX_PARTS};
ghost use Rattle.ident_core.specs.declared.kind.Kind.TheVariants.{Snapshot};
ghost use Rattle.octets_core.specs.Reading.{value_of};
ghost use Rattle.part_text.specs.SealedFields.{SealedFields};
ghost use Rattle.part_text.specs.Fitting.{Fits};
ghost use Rattle.store_core.specs.declared.chain.Refusal.TheVariants.{NotDelta, WrongParent, OldEpoch, CoverageShrinks, Full};
ghost use Rattle.store_core.specs.Chain.{newest_of, refusal_of, Follows, IsChain, IsStore};
ghost use Rattle.store_core.specs.Refusals.{HasWrongParent, HasOldEpoch, LosesCoverage};
ghost use Rattle.store_core.specs.StoreLayout.{store, store_text};

/// The text of a chain is read as that chain. Each part that was read or encoded fits.
pub fn stores_are_read_back()
    ensures text { (parts : List SealedFields) → IsChain parts → 1 ≤ length parts → length parts ≤ MAX_PARTS
        → All Fits parts → store (store_text parts) 0 ≡ Ok (parts, length (store_text parts)) }
    ensures parts { (parts : List SealedFields) → IsChain parts → 1 ≤ length parts → length parts ≤ MAX_PARTS
        → All Fits parts → value_of (store (store_text parts) 0) ≡ Ok parts }
{}

/// What bytes are read as is a chain of 1 to `MAX_PARTS` parts, and the bytes are its text.
pub fn what_is_read_is_a_chain()
    ensures chain { (bytes : List ℕ) (parts : List SealedFields) → value_of (store bytes 0) ≡ Ok parts → IsStore parts }
    ensures spelled { (bytes : List ℕ) (parts : List SealedFields) → All (λ b. b < 256) bytes
        → value_of (store bytes 0) ≡ Ok parts → (bytes ≡ store_text parts) × All Fits parts }
{}

/// When each refusal comes, behind the newest part `held`, and when none does. The rules are asked in the order of
/// `Refusal`: the part is a delta, its parent is the trailer that is held, its epoch is greater, its coverage holds the
/// coverage that is held, and the chain has room.
pub fn refusals_are_exact()
    ensures not_delta { (parts : List SealedFields) (held given : SealedFields) → newest_of parts ≡ Some held
        → (refusal_of parts given ≡ Some NotDelta ↔ given.part.head.kind ≡ Snapshot) }
    ensures wrong_parent { (parts : List SealedFields) (held given : SealedFields) (h g : List ℕ)
        → newest_of parts ≡ Some held
        → (refusal_of parts given ≡ Some (WrongParent h g)
        ↔ HasWrongParent held given × (h ≡ held.trailer) × (g ≡ given.part.head.parent)) }
    ensures old_epoch { (parts : List SealedFields) (held given : SealedFields) (h g : ℕ)
        → newest_of parts ≡ Some held
        → (refusal_of parts given ≡ Some (OldEpoch h g)
        ↔ HasOldEpoch held given × (h ≡ held.part.head.epoch) × (g ≡ given.part.head.epoch)) }
    ensures coverage_shrinks { (parts : List SealedFields) (held given : SealedFields) (log : List ℕ)
        → newest_of parts ≡ Some held
        → (refusal_of parts given ≡ Some (CoverageShrinks log) ↔ LosesCoverage held given log) }
    ensures full { (parts : List SealedFields) (held given : SealedFields) → newest_of parts ≡ Some held
        → (refusal_of parts given ≡ Some Full ↔ Follows held given × (MAX_PARTS ≤ length parts)) }
    ensures none { (parts : List SealedFields) (held given : SealedFields) → newest_of parts ≡ Some held
        → (refusal_of parts given ≡ None ↔ Follows held given × (length parts < MAX_PARTS)) }
{}

/// A chain that isn't full takes a part exactly where the parts together are a chain.
pub fn chains_grow()
    ensures longer { (parts : List SealedFields) (p : SealedFields) → IsChain parts → 1 ≤ length parts
        → refusal_of parts p ≡ None → IsChain (parts ++ p ∷ []) }
    ensures room { (parts : List SealedFields) (p : SealedFields) → refusal_of parts p ≡ None → length parts < MAX_PARTS }
    ensures only { (parts : List SealedFields) (p : SealedFields) → IsChain (parts ++ p ∷ [])
        → 1 ≤ length parts → length parts < MAX_PARTS → IsChain parts × (refusal_of parts p ≡ None) }
{}
