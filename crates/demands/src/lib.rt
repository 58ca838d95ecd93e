// Demand 2: what the audit's yes means, and that the calls accept what a history accepts. Demand 3: seating undoes taking out, along any history, and which keys a change moves. Of the calls as they are
// promised. No code.
#![tactic(auto)]
