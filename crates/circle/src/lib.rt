// No function: this crate holds the theorems that join the services.
#![tactic(auto)]
