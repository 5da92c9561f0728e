//! The generated script.

ghost use Rattle.std.specs.Prelude.{◌≡◌};
ghost use Rattle.generated_load.specs.Load.{generated_script};

const SCRIPT: &str =
    "CREATE TABLE orders (id INTEGER NOT NULL, region VARCHAR(8), qty INTEGER, price INTEGER);\nCREATE PROJECTION orders_region (region ENCODING RLE, qty, price)\n  AS SELECT region, qty, price FROM orders ORDER BY region, qty;\nCOPY orders FROM '@gen';\nSELECT DO_TM_TASK('moveout');\nDELETE FROM orders WHERE qty = 0;\nCOMMIT;\nSELECT region, COUNT(*), SUM(qty * price) FROM orders GROUP BY region;\nAT EPOCH 1 SELECT COUNT(*) FROM orders;\n";

/// The script that a generated run runs: its eight statements, with a line feed behind each line.
pub fn script() -> &'static [u8]
    ensures { result.now ≡ generated_script }
{
    SCRIPT.as_bytes()
}
