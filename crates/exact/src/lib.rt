// Laws only: what a bound on 2 ^ x means, and the theory behind it, polynomials and their inequalities. See specs/ and
// proofs/.

#![tactic(auto)]
