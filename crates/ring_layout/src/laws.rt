//! Laws of chains. They speak of the definitions alone, so their bodies are empty.
ghost use Rattle.std.specs.Prelude.{◌≡◌, ℕ, Bool, List, Some};
ghost use Rattle.ring_layout.specs.declared.layout.Layout.{Layout};
ghost use Rattle.ring_layout.specs.declared.descriptor.Descriptor.{Descriptor};
ghost use Rattle.ring_layout.specs.Chain.{IsChain, chain_at};

/// At a position there is one chain at most, whether tables may be used or not: a list of descriptors that is a chain is the
/// one that is found.
pub fn only_one_chain()
    ensures { (indirect : Bool) (mem : List ℕ) (l : Layout) (pos : ℕ) (c : List Descriptor) → IsChain indirect mem l pos c
        → chain_at indirect mem l pos ≡ Some c }
{}

/// What is found at a position is a chain.
pub fn a_chain_is_found()
    ensures { (indirect : Bool) (mem : List ℕ) (l : Layout) (pos : ℕ) (c : List Descriptor) → chain_at indirect mem l pos ≡ Some c
        → IsChain indirect mem l pos c }
{}
