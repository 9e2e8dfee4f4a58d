//! What a device does to a ring, and what it finds: laws of the definitions alone, whose bodies are empty. And what follows
//! from the types alone.
ghost use Rattle.std.specs.Prelude.{◌≡◌, ◌+◌, ◌%◌, ◌<◌, ◌^◌, ◌++◌, [], ◌∷◌, ℕ, List, false, length};
ghost use Rattle.ring_layout.specs.Chain.{available, found, nothing, chain, used_writes, written, index_modulus};
ghost use Rattle.ring_driver.specs.Driver.{Driver};
ghost use Rattle.ring_driver.specs.Same.{SameBytes};
ghost use Rattle.ring_driver.specs.Between.{Pair, Ring, Stands, IsInTable, first_of, second_of, used, with_fetched, with_used};

use crate::driver::RingDriver;

fn is_shared<T: Send + Sync>() {}

/// A driver may be sent to threads and shared by them.
pub fn drivers_cross_threads() {
    is_shared::<RingDriver>();
}

/// At its position the device finds the chain that waits longest (VIRTIO 1.3, 2.7.5 and 2.7.6).
pub fn a_posted_chain_is_found()
    ensures { (mem : List ℕ) (d : Driver) (r : Ring) (p : Pair) (ps : List Pair) → Stands mem d r → r.waiting ≡ p ∷ ps
        → (available mem d.layout (r.fetched % index_modulus) ≡ p.head) × IsInTable mem d.layout p × (found false mem d.layout (r.fetched % index_modulus) ≡ chain (first_of p ∷ second_of p ∷ [])) }
{}

/// Where no chain waits it finds no entry.
pub fn nothing_is_found_where_none_waits()
    ensures { (mem : List ℕ) (d : Driver) (r : Ring) → Stands mem d r → r.waiting ≡ [] → found false mem d.layout (r.fetched % index_modulus) ≡ nothing }
{}

/// A chain that it fetches is held, and nothing is written.
pub fn a_found_chain_is_held()
    ensures { (mem : List ℕ) (d : Driver) (r : Ring) (p : Pair) (ps : List Pair) → Stands mem d r → r.waiting ≡ p ∷ ps → Stands mem d (with_fetched r p ps) }
{}

/// A chain that it holds and uses, at the next position of the used ring, is done (VIRTIO 1.3, 2.7.8): `take_used` gives it
/// back after those that were done before.
pub fn a_used_chain_is_done()
    ensures { (mem : List ℕ) (d : Driver) (r : Ring) (before : List Pair) (p : Pair) (behind : List Pair) (count : ℕ) → Stands mem d r → r.held ≡ before ++ p ∷ behind → count < 2 ^ 32
        → Stands (written (used_writes d.layout (used r % index_modulus) p.head count) mem) d (with_used r before p behind count) }
{}

/// A write outside of the ring changes nothing of it.
pub fn a_write_elsewhere_keeps_the_ring()
    ensures { (old new : List ℕ) (d : Driver) (r : Ring) → Stands old d r → SameBytes d.layout.table d.layout.end old new → length new ≡ length old → Stands new d r }
{}
