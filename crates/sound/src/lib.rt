// What a sound table is, told three ways: by history, by its form, by a test in one pass; and that the three are one. No code.
#![tactic(auto)]
