// The check goes over each test as over any function, so their form is one that costs little: tables are constants, one function
// goes through a table, and the function that owns a desk does nothing but hand it on.
mod between_units;
mod caches;
mod collected;
mod dependents;
mod frames;
mod generations;
mod logged;
mod promoted;
mod stepped;
mod transforms;
