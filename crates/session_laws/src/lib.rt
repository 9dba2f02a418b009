// What is shown of asking, committing and replacing; no code stands here.
#![tactic(auto)]
