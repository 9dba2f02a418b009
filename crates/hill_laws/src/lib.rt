// What is shown of the fit for hills (document 02, §14): its laws stand here, over the definitions of `lap_fit`. There is no code in this crate.
#![tactic(auto)]
