// Laws only: no 2^t of a fraction t that a float or the middle of two floats can have comes near the middle of two
// floats, or near a float. See specs/ and proofs/.

#![tactic(auto)]
