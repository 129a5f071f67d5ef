// The public calls as definitions. There is no code here.
#![tactic(auto)]
