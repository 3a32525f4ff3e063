// That the account agrees with the radio's stream: demand 3 in specs/, of any host, and its proof of the session that the crate model
// defines. No code: only specs/ and proofs/.
#![tactic(auto)]
