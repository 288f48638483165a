// Mathematics of whole numbers only: nothing here runs.
#![tactic(auto)]
