// The rows of a plan as the columns of its tables: what each column holds, and what writing rows makes of the tables.
