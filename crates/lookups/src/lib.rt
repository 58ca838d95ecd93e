// That both rules of finding a key agree on every sound table, in how many draws, and which keys a change moves. No code.
#![tactic(auto)]
