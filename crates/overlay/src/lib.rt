// Numbers laid over others in a lent list: no code, only definitions (specs/Over.antt) and laws over them. What writes bytes or rows is stated through them.
#![tactic(auto)]
