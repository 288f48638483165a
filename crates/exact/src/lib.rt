// Mathematics of exact fractions only: nothing here runs.
#![tactic(auto)]
