// What every other crate's definitions and proofs lean on: a choice by a test, an answer in 01's terms, a table searched in order,
// and what holds of each of a list. No code: only specs/ and proofs/.
#![tactic(auto)]
