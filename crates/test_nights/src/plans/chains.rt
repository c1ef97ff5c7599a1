// How many operation records a request looks at, on a plan of 20 chains of 255 operations.

/// Behind `looks` stands how many records the request may look at: four, and four for each entry of the ready lists before and
/// after and for each operation whose row changes and each pair that it is in; a load, a dependency and a deletion, four for
/// each operation and each pair of the plan that they leave, and four; an extension, four for each of the plan before and of the
/// one after, and four.
pub const CHAINS: &str = "CHAINS: requests of a plan of twenty chains
22:00 load SET_UPS CHAINS*20*255 | names -
looks 40724
22:00 tick | names -
looks 164
22:00 started J1.1 | names -
looks 168
22:00 ended J1.1 | names -
looks 180
22:00 hold J20.255 | names -
looks 172
22:00 hold J20.255 | names -
looks 164
22:00 depend J2.4 on J1.3 | names -
looks 40728
22:00 depend J2.3 on J1.3 | names -
looks 40732
22:00 delete J20 | names -
looks 40732
22:00 extend - | names -
looks 79424";
