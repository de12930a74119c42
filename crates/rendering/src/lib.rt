// The text of a survey, rendered: definitions, and what is shown of reading and writing. There is no code here.
#![tactic(auto)]
