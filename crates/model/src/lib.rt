//! What the ends and the circuit mean, and the law over whole runs.
#![tactic(auto)]

ghost use Rattle.model.specs.Example.{Example};
ghost use Rattle.model.specs.Law.{TheLaw};
ghost use Rattle.model.specs.Meaning.{rules};

use crypto::cipher::Cipher;
use crypto::digest::Digest;

/// The law of the circuit, for every cipher and every digest.
pub fn law_stands<C: Cipher, D: Digest>()
    ensures { TheLaw (rules C.Cipher D.Digest) }
{}

/// The definitions, computed: what small circuits answer to some fifty calls.
pub fn example_runs()
    ensures { Example }
{}
