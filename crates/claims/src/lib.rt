// What is claimed of the whole: demand 3 over every list of registering calls, lent orders, the look for a double count that is retired, and the
// pairs of document 01 as one statement.
// There is no code here: definitions are in specs/, the theorems in proofs/.
#![tactic(auto)]
