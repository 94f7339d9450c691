//! Whether a schema is the one that a keeper makes, or the one before it.
ghost use Rattle.std.specs.Prelude.{◌≡◌, ◌↔◌, IsTrue, Some, None, [], ◌∷◌, pos};
ghost use Rattle.sqlite_catalog.specs.Listing.{automatic};
ghost use Rattle.sqlite_schema.specs.Code.{term_in};
ghost use Rattle.sqlite_value.specs.Keys.{plain};
ghost use Rattle.sql_keeper.specs.inside.Nodes.{op_at};
ghost use Rattle.sql_keeper.specs.inside.Schemas.{IsSimple, id_is_one, column_of, keeper_schema, no_schema};
ghost use Rattle.sql_keeper.specs.inside.Schemas.{number_columns, old_schema, the_cache};
ghost use Rattle.sql_keeper.specs.inside.Indexes.{index_of};
ghost use Rattle.sql_keeper.specs.inside.Schemas.{the_inputs, the_logs, the_meta, the_old_cache};
ghost use Rattle.sql_keeper.specs.inside.Schemas.{value_columns};

use sqlite_schema::code::{Op, Terms};
use sqlite_schema::schema::{Column, Index, Kind, Schema, Stamps, Table};
use sqlite_sql::ops::{BinaryOp, CompareOp};
use sqlite_value::keys::{Collation, Order};
use sqlite_value::value::Value;

fn is_name(name: &[u8], wanted: &[u8]) -> bool
    ensures is { IsTrue result → name.now ≡ wanted.now }
    ensures exact { name.now ≡ wanted.now → IsTrue result }
{
    name == wanted
}

fn are_places(places: &[usize], wanted: &[usize]) -> bool
    ensures is { IsTrue result → places.now ≡ wanted.now }
    ensures exact { places.now ≡ wanted.now → IsTrue result }
{
    places == wanted
}

fn is_null(value: &Value) -> bool
    ensures is { IsTrue result → value.now ≡ Value.Null }
    ensures exact { value.now ≡ Value.Null → IsTrue result }
{
    matches!(value, Value::Null)
}

fn is_equality(op: &BinaryOp) -> bool
    ensures is { IsTrue result → op.now ≡ BinaryOp.Compare CompareOp.Eq Collation.Binary }
    ensures exact { op.now ≡ BinaryOp.Compare CompareOp.Eq Collation.Binary → IsTrue result }
{
    matches!(op, BinaryOp::Compare(CompareOp::Eq, Collation::Binary))
}

fn is_id(nodes: &[Op], at: usize) -> bool
    ensures { IsTrue result ↔ (op_at nodes.now at ≡ Op.Column 1 0) }
{
    matches!(nodes.get(at), Some(Op::Column(1, 0)))
}

fn is_one(nodes: &[Op], at: usize) -> bool
    ensures { IsTrue result ↔ (op_at nodes.now at ≡ Op.Literal (Value.Int (pos 1))) }
{
    matches!(nodes.get(at), Some(Op::Literal(Value::Int(1))))
}

/// The term `id = 1`, from the place of its root.
fn is_meta_term(nodes: &[Op], root: usize) -> bool
    ensures { IsTrue result ↔ (term_in nodes.now root ≡ id_is_one) }
{
    let Some(Op::Binary(op, id, number)) = nodes.get(root) else {
        return false;
    };
    is_equality(op) && is_id(nodes, *id) && is_one(nodes, *number)
}

/// The text `id = 1`.
fn is_meta_check(checks: &Terms) -> bool
    ensures is { IsTrue result → checks.now ≡ the_meta.checks }
    ensures exact { checks.now ≡ the_meta.checks → IsTrue result }
{
    let [root] = checks.roots.as_slice() else {
        return false;
    };
    is_meta_term(checks.nodes.as_slice(), *root)
}

/// A STRICT column that is NOT NULL.
fn is_column(column: &Column, name: &[u8], kind: Kind) -> bool
    ensures is { IsTrue result → column.now ≡ column_of name.now kind }
    ensures exact { column.now ≡ column_of name.now kind → IsTrue result }
{
    is_name(column.name.as_slice(), name)
        && column.kind == kind
        && column.is_strict
        && column.not_null
        && is_null(&column.default)
        && column.collation == Collation::Binary
}

fn are_meta_columns(columns: &[Column]) -> bool
    ensures is { IsTrue result → columns.now ≡ the_meta.columns }
    ensures exact { columns.now ≡ the_meta.columns → IsTrue result }
{
    let [id, format, next_job] = columns else {
        return false;
    };
    is_column(id, b"id", Kind::Integer)
        && is_column(format, b"format", Kind::Integer)
        && is_column(next_job, b"next_job", Kind::Integer)
}

fn are_input_columns(columns: &[Column]) -> bool
    ensures is { IsTrue result → columns.now ≡ the_inputs.columns }
    ensures exact { columns.now ≡ the_inputs.columns → IsTrue result }
{
    let [name, literal] = columns else {
        return false;
    };
    is_column(name, b"name", Kind::Text) && is_column(literal, b"literal", Kind::Text)
}

fn are_number_columns(columns: &[Column]) -> bool
    ensures is { IsTrue result → columns.now ≡ number_columns }
    ensures exact { columns.now ≡ number_columns → IsTrue result }
{
    let [finished, job, rebuild] = columns else {
        return false;
    };
    is_column(finished, b"finished", Kind::Integer)
        && is_column(job, b"job", Kind::Integer)
        && is_column(rebuild, b"rebuild", Kind::Integer)
}

fn are_value_columns(columns: &[Column]) -> bool
    ensures is { IsTrue result → columns.now ≡ value_columns }
    ensures exact { columns.now ≡ value_columns → IsTrue result }
{
    let [cvalue, fine, result, numbers @ ..] = columns else {
        return false;
    };
    is_column(cvalue, b"cvalue", Kind::Text)
        && is_column(fine, b"fine", Kind::Integer)
        && is_column(result, b"result", Kind::Text)
        && are_number_columns(numbers)
}

fn are_cache_columns(columns: &[Column]) -> bool
    ensures is { IsTrue result → columns.now ≡ the_cache.columns }
    ensures exact { columns.now ≡ the_cache.columns → IsTrue result }
{
    let [op, khash, ckey, values @ ..] = columns else {
        return false;
    };
    is_column(op, b"op", Kind::Text)
        && is_column(khash, b"khash", Kind::Blob)
        && is_column(ckey, b"ckey", Kind::Text)
        && are_value_columns(values)
}

fn are_old_columns(columns: &[Column]) -> bool
    ensures is { IsTrue result → columns.now ≡ the_old_cache.columns }
    ensures exact { columns.now ≡ the_old_cache.columns → IsTrue result }
{
    let [op, ckey, values @ ..] = columns else {
        return false;
    };
    is_column(op, b"op", Kind::Text)
        && is_column(ckey, b"ckey", Kind::Text)
        && are_value_columns(values)
}

fn are_log_columns(columns: &[Column]) -> bool
    ensures is { IsTrue result → columns.now ≡ the_logs.columns }
    ensures exact { columns.now ≡ the_logs.columns → IsTrue result }
{
    let [job, output] = columns else {
        return false;
    };
    is_column(job, b"job", Kind::Integer) && is_column(output, b"output", Kind::Blob)
}

fn has_no_stamps(stamps: &Stamps) -> bool
    ensures is { IsTrue result → stamps.now ≡ the_meta.stamps }
    ensures exact { stamps.now ≡ the_meta.stamps → IsTrue result }
{
    stamps.places.is_empty() && has_no_terms(&stamps.terms) && stamps.formats.is_empty()
}

fn has_no_terms(terms: &Terms) -> bool
    ensures is { IsTrue result → terms.now ≡ [] }
    ensures exact { terms.now ≡ [] → IsTrue result }
{
    terms.roots.is_empty()
}

/// Whether nothing more is asked of a row.
fn is_simple(table: &Table) -> bool
    ensures references { IsTrue result → table.now.references ≡ [] }
    ensures computed { IsTrue result → table.now.computed ≡ [] }
    ensures stamps { IsTrue result → table.now.stamps ≡ the_meta.stamps }
    ensures counted { IsTrue result → table.now.is_counted ≡ the_meta.is_counted }
    ensures exact { IsSimple table.now → IsTrue result }
{
    table.references.is_empty()
        && table.computed.is_empty()
        && has_no_stamps(&table.stamps)
        && !table.is_counted
}

fn is_meta(table: &Table) -> bool
    ensures is { IsTrue result → table.now ≡ the_meta }
    ensures exact { table.now ≡ the_meta → IsTrue result }
{
    is_name(table.name.as_slice(), b"meta")
        && table.tree == 0
        && are_meta_columns(table.columns.as_slice())
        && table.key == Some(0)
        && are_places(table.primary.as_slice(), &[0])
        && table.uniques.is_empty()
        && table.orders.is_empty()
        && is_meta_check(&table.checks)
        && is_simple(table)
}

fn is_inputs(table: &Table) -> bool
    ensures is { IsTrue result → table.now ≡ the_inputs }
    ensures exact { table.now ≡ the_inputs → IsTrue result }
{
    let [unique] = table.uniques.as_slice() else {
        return false;
    };
    let [order] = table.orders.as_slice() else {
        return false;
    };
    is_name(table.name.as_slice(), b"inputs")
        && table.tree == 1
        && are_input_columns(table.columns.as_slice())
        && table.key.is_none()
        && are_places(table.primary.as_slice(), &[1])
        && are_places(unique.as_slice(), &[1])
        && order.digits == 0
        && has_no_terms(&table.checks)
        && is_simple(table)
}

fn is_cache(table: &Table) -> bool
    ensures is { IsTrue result → table.now ≡ the_cache }
    ensures exact { table.now ≡ the_cache → IsTrue result }
{
    let [unique] = table.uniques.as_slice() else {
        return false;
    };
    let [order] = table.orders.as_slice() else {
        return false;
    };
    is_name(table.name.as_slice(), b"cache2")
        && table.tree == 3
        && are_cache_columns(table.columns.as_slice())
        && table.key.is_none()
        && are_places(table.primary.as_slice(), &[1, 2, 3])
        && are_places(unique.as_slice(), &[1, 2, 3])
        && order.digits == 0
        && has_no_terms(&table.checks)
        && is_simple(table)
}

fn is_old_cache(table: &Table) -> bool
    ensures is { IsTrue result → table.now ≡ the_old_cache }
    ensures exact { table.now ≡ the_old_cache → IsTrue result }
{
    let [unique] = table.uniques.as_slice() else {
        return false;
    };
    let [order] = table.orders.as_slice() else {
        return false;
    };
    is_name(table.name.as_slice(), b"cache")
        && table.tree == 3
        && are_old_columns(table.columns.as_slice())
        && table.key.is_none()
        && are_places(table.primary.as_slice(), &[1, 2])
        && are_places(unique.as_slice(), &[1, 2])
        && order.digits == 0
        && has_no_terms(&table.checks)
        && is_simple(table)
}

fn is_logs(table: &Table) -> bool
    ensures is { IsTrue result → table.now ≡ the_logs }
    ensures exact { table.now ≡ the_logs → IsTrue result }
{
    is_name(table.name.as_slice(), b"logs")
        && table.tree == 5
        && are_log_columns(table.columns.as_slice())
        && table.key == Some(0)
        && are_places(table.primary.as_slice(), &[0])
        && table.uniques.is_empty()
        && table.orders.is_empty()
        && has_no_terms(&table.checks)
        && is_simple(table)
}

fn is_plain(order: Order) -> bool
    ensures is { IsTrue result → order ≡ plain }
    ensures exact { order ≡ plain → IsTrue result }
{
    order.digits == 0
}

/// The index that the engine makes for the only key of a table.
fn is_index(index: &Index, name: &[u8], table: u32, places: &[usize]) -> bool
    ensures is { IsTrue result → index.now ≡ index_of name.now table index.now.tree places.now }
    ensures exact { index.now ≡ index_of name.now table index.now.tree places.now → IsTrue result }
{
    is_name(index.name.as_slice(), name)
        && index.table == table
        && are_places(index.columns.as_slice(), places)
        && is_plain(index.order)
        && index.is_unique
}

fn is_input_index(index: &Index) -> bool
    ensures is { IsTrue result → index.now ≡ automatic the_inputs 0 (1 ∷ []) 2 }
    ensures exact { index.now ≡ automatic the_inputs 0 (1 ∷ []) 2 → IsTrue result }
{
    index.tree == 2 && is_index(index, b"sqlite_autoindex_inputs_1", 1, &[1])
}

fn is_cache_index(index: &Index) -> bool
    ensures is { IsTrue result → index.now ≡ automatic the_cache 0 (1 ∷ 2 ∷ 3 ∷ []) 4 }
    ensures exact { index.now ≡ automatic the_cache 0 (1 ∷ 2 ∷ 3 ∷ []) 4 → IsTrue result }
{
    index.tree == 4 && is_index(index, b"sqlite_autoindex_cache2_1", 3, &[1, 2, 3])
}

fn is_old_index(index: &Index) -> bool
    ensures is { IsTrue result → index.now ≡ automatic the_old_cache 0 (1 ∷ 2 ∷ []) 4 }
    ensures exact { index.now ≡ automatic the_old_cache 0 (1 ∷ 2 ∷ []) 4 → IsTrue result }
{
    index.tree == 4 && is_index(index, b"sqlite_autoindex_cache_1", 3, &[1, 2])
}

fn are_tables(tables: &[Table]) -> bool
    ensures is { IsTrue result → tables.now ≡ keeper_schema.tables }
    ensures exact { tables.now ≡ keeper_schema.tables → IsTrue result }
{
    let [meta, inputs, cache, logs] = tables else {
        return false;
    };
    is_meta(meta) && is_inputs(inputs) && is_cache(cache) && is_logs(logs)
}

fn are_indexes(indexes: &[Index]) -> bool
    ensures is { IsTrue result → indexes.now ≡ keeper_schema.indexes }
    ensures exact { indexes.now ≡ keeper_schema.indexes → IsTrue result }
{
    let [inputs, cache] = indexes else {
        return false;
    };
    is_input_index(inputs) && is_cache_index(cache)
}

fn are_old_tables(tables: &[Table]) -> bool
    ensures is { IsTrue result → tables.now ≡ old_schema.tables }
    ensures exact { tables.now ≡ old_schema.tables → IsTrue result }
{
    let [meta, inputs, cache, logs] = tables else {
        return false;
    };
    is_meta(meta) && is_inputs(inputs) && is_old_cache(cache) && is_logs(logs)
}

fn are_old_indexes(indexes: &[Index]) -> bool
    ensures is { IsTrue result → indexes.now ≡ old_schema.indexes }
    ensures exact { indexes.now ≡ old_schema.indexes → IsTrue result }
{
    let [inputs, cache] = indexes else {
        return false;
    };
    is_input_index(inputs) && is_old_index(cache)
}

/// Whether a schema has the tables of the second schema, and nothing else.
pub(crate) fn is_current(schema: &Schema) -> bool
    ensures is { IsTrue result → schema.now ≡ keeper_schema }
    ensures exact { schema.now ≡ keeper_schema → IsTrue result }
{
    are_tables(schema.tables.as_slice())
        && are_indexes(schema.indexes.as_slice())
        && schema.views.is_empty()
}

/// Whether a schema has the tables of the first schema, and nothing else.
pub(crate) fn is_first(schema: &Schema) -> bool
    ensures is { IsTrue result → schema.now ≡ old_schema }
    ensures exact { schema.now ≡ old_schema → IsTrue result }
{
    are_old_tables(schema.tables.as_slice())
        && are_old_indexes(schema.indexes.as_slice())
        && schema.views.is_empty()
}

/// Whether a schema has no table, and nothing else.
pub(crate) fn is_blank(schema: &Schema) -> bool
    ensures is { IsTrue result → schema.now ≡ no_schema }
    ensures exact { schema.now ≡ no_schema → IsTrue result }
{
    schema.tables.is_empty() && schema.indexes.is_empty() && schema.views.is_empty()
}
