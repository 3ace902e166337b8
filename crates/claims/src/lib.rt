// What is proved of whole calls: specs/ alone. Claims is the page to read.
#![tactic(auto)]
