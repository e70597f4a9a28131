// Numbers below a bound: tests, sums and lists over them, which every definition is made of. There is no code here: what other crates name are its definitions and laws.
#![tactic(auto)]
