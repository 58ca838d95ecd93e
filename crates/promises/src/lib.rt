// What a promise says of an outcome, and of a test's answer. No code.
#![tactic(auto)]
