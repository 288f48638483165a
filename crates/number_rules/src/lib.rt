// The rules of angles, sines and dates are in specs/; nothing here runs.
#![tactic(auto)]
