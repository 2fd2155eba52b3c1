// Laws: a cold query that is judged is measured. No code.
#![tactic(auto)]
