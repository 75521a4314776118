ghost use Rattle.workbench.specs.Laws.{PricesAsPromised};

// What the price list promises of the answers of `used` and `count`, whatever was carried out before.
pub fn prices_as_promised()
    ensures { PricesAsPromised }
{}
